// The refusals of every call and their numbers, and what a call without further values answers.
ghost use Rattle.std.specs.Prelude.{[], ◌∷◌, ◌≡◌};
ghost use Rattle.map.specs.Refusals.{refusal_number, answer_number, numbers_of, open_answer};

#[derive(Clone, Copy, PartialEq, Eq)]
pub enum Refusal {
    // a member above 4
    Member = 1,
    // a bus above 1
    Bus = 2,
    // pins above 3, or not 0 on SPI
    Pins = 3,
    // an address that is not writable
    NotWritable = 4,
    // a reserved bit that differs from its reset value
    ReservedBit = 5,
    // a dot that the member has not
    NoDot = 6,
    // a level above what the data mode holds
    Level = 7,
    // a group above 3, a state above 1
    GroupOrState = 8,
    // a scene whose length is not that of its entries
    SceneLength = 9,
    // a buffer that is too short
    BufferShort = 10,
    // a list whose sizes do not add up
    ListSizes = 11,
    // fault bytes that are not 67
    FaultLength = 13,
    // a record or a chip that is not sound
    Unsound = 14,
    // a round of under 12 or above 4,096 bus bytes
    RoundLimit = 15,
    // a present record of a round on SPI, or whose pins are not its place
    NotItsPlace = 16,
    // a register that the record's lock keeps
    Locked = 17,
    // a record that is locked, or whose chip is off or has not its settings in the registers that a lock keeps
    NotLockable = 18,
    // an index of n or more, of a list of n transactions
    NoTransaction = 26,
}

pub fn refusal_number(refusal: Refusal) -> u8
    ensures { result ≡ refusal_number refusal }
{
    refusal as u8
}

// What a call answers that hands back no value of its own.
pub type Answer = Result<(), Refusal>;

// 0 where the call is accepted, else the refusal's number.
pub fn answer_number(answer: Answer) -> u8
    ensures { result ≡ answer_number answer }
{
    match answer {
        Ok(()) => 0,
        Err(refusal) => refusal_number(refusal),
    }
}

// The number of an answer, 0 or a refusal's, and the values that come with it: the first `count` of five numbers.
#[derive(Clone, Copy)]
pub struct Numbers {
    pub count: usize,
    pub values: [usize; 5],
}

// `N`
#[tactic(auto, unfolding(crate::specs::Refusals::numbers_of))]
pub fn number_alone(number: usize) -> Numbers
    ensures { result ≡ numbers_of (number ∷ []) }
{
    Numbers {
        count: 1,
        values: [number, 0, 0, 0, 0],
    }
}

// `N V`
#[tactic(auto, unfolding(crate::specs::Refusals::numbers_of))]
pub fn with_value(number: usize, first: usize) -> Numbers
    ensures { result ≡ numbers_of (number ∷ first ∷ []) }
{
    Numbers {
        count: 2,
        values: [number, first, 0, 0, 0],
    }
}

// `N V W`
#[tactic(auto, unfolding(crate::specs::Refusals::numbers_of))]
pub fn with_values(number: usize, first: usize, second: usize) -> Numbers
    ensures { result ≡ numbers_of (number ∷ first ∷ second ∷ []) }
{
    Numbers {
        count: 3,
        values: [number, first, second, 0, 0],
    }
}

// The number alone.
pub fn answer_numbers(answer: Answer) -> Numbers
    ensures { result ≡ numbers_of (answer_number answer ∷ []) }
{
    number_alone(answer_number(answer) as usize)
}

// What Open answers to a member, a bus (0 I2C, 1 SPI) and pins.
#[tactic(auto, unfolding(crate::specs::Refusals::open_answer))]
pub fn open_answer(member: usize, bus: usize, pins: usize) -> Answer
    ensures { result ≡ open_answer member bus pins }
{
    if 4 < member {
        return Err(Refusal::Member);
    }
    if 1 < bus {
        return Err(Refusal::Bus);
    }
    if 3 < pins || (bus == 1 && 0 < pins) {
        return Err(Refusal::Pins);
    }
    Ok(())
}
