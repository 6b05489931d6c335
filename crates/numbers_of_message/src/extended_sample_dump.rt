// Extended sample dumps.
// Kept as two parameters, an output and the number of a device: a struct of both would be made for each message.
ghost use Rattle.std.specs.Prelude.{[], ◌∷◌};
ghost use Rattle.numbers_of_message.specs.Put.{Put};
ghost use Rattle.numbers_of_message.specs.Numbers.{numbers, of_extended};

use crate::put::put;
use crate::values::loop_index;
use messages::sample_dump::ExtendedSampleDumpMsg;

// Puts an extended sample dump message.
pub fn put_message(out: &mut [u64], d: u64, m: ExtendedSampleDumpMsg) -> usize
    ensures { Put (numbers d (of_extended m)) out.old out.new result }
{
    match m {
        ExtendedSampleDumpMsg::SampleName { sample_num } => put(
            out,
            &[0x0503, d, sample_num as u64],
        ),
        ExtendedSampleDumpMsg::SampleNameRequest { sample_num } => put(
            out,
            &[0x0504, d, sample_num as u64],
        ),
        ExtendedSampleDumpMsg::Header {
            sample_num,
            format,
            sample_rate_integer,
            sample_rate_fraction,
            length,
            sustain_loop_start,
            sustain_loop_end,
            loop_type,
            num_channels,
        } => {
            let row = [
                0x0505,
                d,
                sample_num as u64,
                format as u64,
                sample_rate_integer as u64,
                sample_rate_fraction as u64,
                length,
                sustain_loop_start,
                sustain_loop_end,
                u8::from(loop_type) as u64,
                num_channels as u64,
            ];
            put(out, &row)
        }
        ExtendedSampleDumpMsg::LoopPointTransmission {
            sample_num,
            loop_num,
            loop_type,
            start_addr,
            end_addr,
        } => {
            let row = [
                0x0506,
                d,
                sample_num as u64,
                loop_index(loop_num),
                u8::from(loop_type) as u64,
                start_addr,
                end_addr,
            ];
            put(out, &row)
        }
        ExtendedSampleDumpMsg::LoopPointsRequest {
            sample_num,
            loop_num,
        } => put(out, &[0x0507, d, sample_num as u64, loop_index(loop_num)]),
    }
}
