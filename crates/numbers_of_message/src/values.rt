// Values that are no numbers, as numbers.
ghost use Rattle.std.specs.Prelude.{◌≡◌};
ghost use Rattle.messages.specs.Fields.{bit};
ghost use Rattle.numbers_to_message.specs.Values.{device_number_of, bank_number_of, loop_index_of, file_number_of, reference_number_of, signed_number_of};

use messages::file_dump::FileType;
use messages::file_reference::FileReferenceType;
use messages::sample_dump::LoopNumber;
use messages::system_exclusive::DeviceID;

// A device: all call is 256.
pub fn device_number(d: DeviceID) -> u64
    ensures { result ≡ device_number_of d }
{
    match d {
        DeviceID::Device(n) => n as u64,
        DeviceID::AllCall => 256,
    }
}

// A bank: none is 256.
pub fn bank_number(bank: Option<u8>) -> u64
    ensures { result ≡ bank_number_of bank }
{
    bank.map_or(256, u64::from)
}

// A loop: all are 65,536.
// Kept beside `loop_value` of messages: all loops have another number in a frame.
pub fn loop_index(i: LoopNumber) -> u64
    ensures { result ≡ loop_index_of i }
{
    match i {
        LoopNumber::Loop(n) => n as u64,
        LoopNumber::RequestAll | LoopNumber::DeleteAll => 65536,
    }
}

// A file type: its four letters, the first highest.
pub fn type_number(t: FileType) -> u64
    ensures { result ≡ file_number_of t }
{
    u32::from_be_bytes(t.into()).into()
}

// The type of a sound file.
pub fn reference_number(t: FileReferenceType) -> u64
    ensures { result ≡ reference_number_of t }
{
    t as u64
}

// Kept as a pair: they differ in the type of the value, and each is one line.

// A signed number of 8 bits in two's complement of 64.
pub fn signed_8(x: i8) -> u64
    ensures { result ≡ signed_number_of x }
{
    i64::from(x).cast_unsigned()
}

// A signed number of 16 bits in two's complement of 64.
pub fn signed_16(x: i16) -> u64
    ensures { result ≡ signed_number_of x }
{
    i64::from(x).cast_unsigned()
}
