// The limits of document 01 that code tests; `stated` is proved equal to specs/Limits.
ghost use Rattle.util.specs.Limits.{Stated};

// The largest byte of seven bits.
pub const LARGEST_U7: u8 = 127;

// The largest value of two groups.
pub const LARGEST_U14: u64 = 16383;

// The device of all call.
pub const ALL_CALL: u8 = 127;

// The loop number of all loops.
pub const ALL_LOOPS: u16 = 16383;

// The least and the most bits of a sample word.
pub const LEAST_FORMAT: u8 = 8;

pub const MOST_FORMAT: u8 = 28;

// The sample bytes of a packet.
pub const SAMPLE_BYTES: usize = 120;

// The highest maker of one byte.
pub const MOST_MAKER: u8 = 124;

// The most bytes of a file name.
pub const MOST_NAME: usize = 1024;

// The most data bytes of a file packet.
pub const MOST_DATA: usize = 111;

// The tunings of a key dump.
pub const KEYS: usize = 128;

// The entry of no tuning.
pub const NO_TUNING: u64 = 16777216;

// The most bytes of a URL.
pub const MOST_URL: usize = 260;

// The most that a count of one byte counts: the bytes of a sample name, note changes, bank maps.
pub const MOST_COUNTED: usize = 127;

// The most bytes of a stream.
pub const MOST_STREAM: usize = 65535;

// All of them.
#[derive(Clone, Copy)]
pub struct Limits {
    pub largest_u7: u8,
    pub largest_u14: u64,
    pub all_call: u8,
    pub all_loops: u16,
    pub least_format: u8,
    pub most_format: u8,
    pub sample_bytes: usize,
    pub most_maker: u8,
    pub most_name: usize,
    pub most_data: usize,
    pub keys: usize,
    pub no_tuning: u64,
    pub most_url: usize,
    pub most_counted: usize,
    pub most_stream: usize,
}

// The limits as the code has them.
pub fn stated() -> Limits
    ensures { Stated result }
{
    Limits {
        largest_u7: LARGEST_U7,
        largest_u14: LARGEST_U14,
        all_call: ALL_CALL,
        all_loops: ALL_LOOPS,
        least_format: LEAST_FORMAT,
        most_format: MOST_FORMAT,
        sample_bytes: SAMPLE_BYTES,
        most_maker: MOST_MAKER,
        most_name: MOST_NAME,
        most_data: MOST_DATA,
        keys: KEYS,
        no_tuning: NO_TUNING,
        most_url: MOST_URL,
        most_counted: MOST_COUNTED,
        most_stream: MOST_STREAM,
    }
}
