// Runs Faults on examples of all five members and compares what it answers and stores with what is written out here, worked
// out by hand from the register tables. It prints a line for each example, and at last how many there are and how many differ.
//
// The fault bytes of an example are 00h but for those that it names: an address and its byte, and so on. Each is read on records whose lamps
// are all dim and all bright, in every data mode (`lights`); other examples have lamps of several levels (`levels`).
#![tactic(auto)]

mod compare;
mod examples;
mod levels;
mod lights;
mod records;
mod refusals;
mod report;
mod tally;

use tally::Tally;

fn main(rt: HostRuntime) {
    let mut tally = Tally::default();
    lights::all(&rt, &mut tally);
    levels::all(&rt, &mut tally);
    refusals::all(&rt, &mut tally);
    report::total(&rt, tally);
}
