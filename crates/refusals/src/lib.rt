// The refusals' numbers, and the bounds by which a text or a work buffer is refused.
#![tactic(auto)]

ghost use Rattle.std.specs.Prelude.{◌≡◌};
ghost use Rattle.paper.specs.Refusals.{number_of};
ghost use Rattle.refusals.specs.ByNumber.{refusal_of};

use paper::Refusal;

// The longest text that is surveyed, listed or converted.
pub const LONGEST_TEXT: usize = 65536;

// What is not refused with 13 and with 14: the longest text of which the shortest one is written, and the least work buffer for it.
pub const LONGEST_INPUT: usize = 4096;

pub const LEAST_WORK: usize = 65536;

// The numbers of the paper's table, by name: an arm of a `match` takes a constant and no cast.
pub const BYTE_OF_EIGHT_BITS: u8 = Refusal::ByteOfEightBits as u8;

pub const NOT_OF_SEQUENCE: u8 = Refusal::NotOfSequence as u8;

pub const THIRD_INTERMEDIATE: u8 = Refusal::ThirdIntermediate as u8;

pub const WITHOUT_MEANING: u8 = Refusal::WithoutMeaning as u8;

pub const NOT_OF_SET: u8 = Refusal::NotOfSet as u8;

pub const ANOTHER_AREA: u8 = Refusal::AnotherArea as u8;

pub const ENDS_INSIDE: u8 = Refusal::EndsInside as u8;

const TOO_LONG: u8 = Refusal::TooLong as u8;

const BUFFER_SHORT: u8 = Refusal::BufferShort as u8;

const NO_NUMBER: u8 = Refusal::NoNumber as u8;

const NOT_MAPPED: u8 = Refusal::NotMapped as u8;

const INPUT_TOO_LONG: u8 = Refusal::InputTooLong as u8;

// The number of a refusal in the paper's table.
pub fn number_of(refusal: Refusal) -> usize
    ensures { result ≡ number_of refusal }
{
    usize::from(refusal)
}

// The refusal that has a number; any other number gives the last.
#[tactic(auto, using(paper::proofs::Tests::tests), unfolding(crate::specs::ByNumber::refusal_of))]
pub fn refusal_of(number: u8) -> Refusal
    ensures { result ≡ refusal_of number }
{
    match number {
        BYTE_OF_EIGHT_BITS => Refusal::ByteOfEightBits,
        NOT_OF_SEQUENCE => Refusal::NotOfSequence,
        THIRD_INTERMEDIATE => Refusal::ThirdIntermediate,
        WITHOUT_MEANING => Refusal::WithoutMeaning,
        NOT_OF_SET => Refusal::NotOfSet,
        ANOTHER_AREA => Refusal::AnotherArea,
        ENDS_INSIDE => Refusal::EndsInside,
        TOO_LONG => Refusal::TooLong,
        BUFFER_SHORT => Refusal::BufferShort,
        NO_NUMBER => Refusal::NoNumber,
        NOT_MAPPED => Refusal::NotMapped,
        INPUT_TOO_LONG => Refusal::InputTooLong,
        _ => Refusal::WorkBufferShort,
    }
}
