// Prints the texts of lists: the bench example of document 01, lists with every kind of head, long lists, and damaged ones, each
// under a caption. The file `stdout` has the texts that document 01 sets, worked out by hand.
#![tactic(auto)]

mod damaged;
mod heads;
mod long;
mod report;
mod writes;

fn main(rt: HostRuntime) {
    heads::all(&rt);
    long::all(&rt);
    damaged::all(&rt);
}
