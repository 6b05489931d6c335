// File dumps.
// Kept as two parameters, an output and the number of a device: a struct of both would be made for each message.
ghost use Rattle.numbers_of_message.specs.Put.{Put};
ghost use Rattle.numbers_of_message.specs.Numbers.{numbers, of_file};

use crate::put::put;
use crate::values::{device_number, type_number};
use messages::file_dump::FileDumpMsg;

// Puts a file dump message.
pub fn put_message(out: &mut [u64], d: u64, m: FileDumpMsg) -> usize
    ensures { Put (numbers d (of_file m)) out.old out.new result }
{
    match m {
        FileDumpMsg::Header {
            sender_device,
            file_type,
            length,
        } => {
            let s = device_number(sender_device);
            let t = type_number(file_type);
            put(out, &[0x0701, d, s, t, length as u64])
        }
        FileDumpMsg::Packet { running_count } => put(out, &[0x0702, d, running_count as u64]),
        FileDumpMsg::Request {
            requester_device,
            file_type,
        } => {
            let s = device_number(requester_device);
            let t = type_number(file_type);
            put(out, &[0x0703, d, s, t])
        }
    }
}
