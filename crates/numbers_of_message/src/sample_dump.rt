// Sample dumps.
// Kept as two parameters, an output and the number of a device: a struct of both would be made for each message.
ghost use Rattle.std.specs.Prelude.{[], ◌∷◌};
ghost use Rattle.numbers_of_message.specs.Put.{Put};
ghost use Rattle.numbers_of_message.specs.Numbers.{numbers, of_sample};

use crate::put::put;
use crate::values::loop_index;
use messages::sample_dump::SampleDumpMsg;

// Puts a sample dump message.
pub fn put_message(out: &mut [u64], d: u64, m: SampleDumpMsg) -> usize
    ensures { Put (numbers d (of_sample m)) out.old out.new result }
{
    match m {
        SampleDumpMsg::Header {
            sample_num,
            format,
            period,
            length,
            sustain_loop_start,
            sustain_loop_end,
            loop_type,
        } => {
            let row = [
                0x0100,
                d,
                sample_num as u64,
                format as u64,
                period as u64,
                length as u64,
                sustain_loop_start as u64,
                sustain_loop_end as u64,
                u8::from(loop_type) as u64,
            ];
            put(out, &row)
        }
        SampleDumpMsg::Packet { running_count } => put(out, &[0x0200, d, running_count as u64]),
        SampleDumpMsg::Request { sample_num } => put(out, &[0x0300, d, sample_num as u64]),
        SampleDumpMsg::LoopPointTransmission {
            sample_num,
            loop_num,
            loop_type,
            start_addr,
            end_addr,
        } => {
            let row = [
                0x0501,
                d,
                sample_num as u64,
                loop_index(loop_num),
                u8::from(loop_type) as u64,
                start_addr as u64,
                end_addr as u64,
            ];
            put(out, &row)
        }
        SampleDumpMsg::LoopPointsRequest {
            sample_num,
            loop_num,
        } => put(out, &[0x0502, d, sample_num as u64, loop_index(loop_num)]),
    }
}
