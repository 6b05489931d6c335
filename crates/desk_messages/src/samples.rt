// Sample dumps in words.
// Kept as two parameters, an output and a style, as in the whole crate: texts take the output alone.
use super::words::Words;
use super::{lists, words};
use desk_print::fields;
use desk_print::fields::Style;
use desk_print::output::Output;
use messages::sample_dump::{ExtendedSampleDumpMsg, LoopNumber, SampleDumpMsg};

// The number of a loop, or all loops.
fn loop_number(out: &mut Output, style: Style, n: LoopNumber) {
    match n {
        LoopNumber::Loop(k) => fields::named(out, style, b"loop", k as u64),
        LoopNumber::RequestAll => words::field(out, style, b"loop", b"all"),
        LoopNumber::DeleteAll => words::field(out, style, b"loop", b"all, to be deleted"),
    }
}

// The words of a loop's type, and its two addresses.
fn loop_points(out: &mut Output, style: Style, kind: &[u8], start: u64, end: u64) {
    words::field(out, style, b"loop type", kind);
    fields::named(out, style, b"loop start", start);
    fields::named(out, style, b"loop end", end);
}

// The sample bytes of a packet, where every field has a line.
fn sample_bytes(out: &mut Output, style: Style, s: &[u8]) {
    if let Style::Lines = style {
        lists::data(out, s);
    }
}

// The number of a sample under a title.
fn titled(out: &mut Output, style: Style, title: &[u8], sample_num: u16) {
    fields::title(out, style, title);
    fields::named(out, style, b"sample", sample_num as u64);
}

// A sample header in words; nothing for another message.
fn header(out: &mut Output, style: Style, m: SampleDumpMsg) {
    let SampleDumpMsg::Header {
        sample_num,
        format,
        period,
        length,
        sustain_loop_start,
        sustain_loop_end,
        loop_type,
    } = m
    else {
        return;
    };
    titled(out, style, b"sample header", sample_num);
    fields::measure(out, style, b"format", format as u64, b" bit");
    fields::measure(out, style, b"period", period as u64, b" ns");
    fields::counted(out, style, b"length", length as u64, b"word");
    loop_points(
        out,
        style,
        loop_type.words(),
        sustain_loop_start as u64,
        sustain_loop_end as u64,
    );
}

// A sample dump in words.
pub fn sample(out: &mut Output, style: Style, m: SampleDumpMsg, text: &[u8]) {
    match m {
        SampleDumpMsg::Header { .. } => header(out, style, m),
        SampleDumpMsg::Packet { running_count } => {
            fields::title(out, style, b"sample packet");
            fields::close(out, style, b"packet", running_count as u64);
            sample_bytes(out, style, text);
        }
        SampleDumpMsg::Request { sample_num } => titled(out, style, b"sample request", sample_num),
        SampleDumpMsg::LoopPointTransmission {
            sample_num,
            loop_num,
            loop_type,
            start_addr,
            end_addr,
        } => {
            titled(out, style, b"loop points", sample_num);
            loop_number(out, style, loop_num);
            loop_points(
                out,
                style,
                loop_type.words(),
                start_addr as u64,
                end_addr as u64,
            );
        }
        SampleDumpMsg::LoopPointsRequest {
            sample_num,
            loop_num,
        } => {
            titled(out, style, b"loop points request", sample_num);
            loop_number(out, style, loop_num);
        }
    }
}

// An extended sample header in words, its rate as the whole part and the rest in 2^28ths; nothing for another message.
fn extended_header(out: &mut Output, style: Style, m: ExtendedSampleDumpMsg) {
    let ExtendedSampleDumpMsg::Header {
        sample_num,
        format,
        sample_rate_integer,
        sample_rate_fraction,
        length,
        sustain_loop_start,
        sustain_loop_end,
        loop_type,
        num_channels,
    } = m
    else {
        return;
    };
    let channels = num_channels as u64;
    titled(out, style, b"extended sample header", sample_num);
    fields::measure(out, style, b"format", format as u64, b" bit");
    fields::measure(out, style, b"rate", sample_rate_integer as u64, b" Hz");
    fields::detail(
        out,
        style,
        b"rate, rest in 2^28ths",
        sample_rate_fraction as u64,
    );
    fields::counted(out, style, b"channels", channels, b"channel");
    fields::counted(out, style, b"length", length, b"word");
    loop_points(
        out,
        style,
        loop_type.words(),
        sustain_loop_start,
        sustain_loop_end,
    );
}

// An extended sample dump in words.
pub fn extended(out: &mut Output, style: Style, m: ExtendedSampleDumpMsg, text: &[u8]) {
    match m {
        ExtendedSampleDumpMsg::SampleName { sample_num } => {
            titled(out, style, b"sample name", sample_num);
            fields::name(out, style, b"name", text);
        }
        ExtendedSampleDumpMsg::SampleNameRequest { sample_num } => titled(
            out,
            style,
            b"sample name request",
            sample_num,
        ),
        ExtendedSampleDumpMsg::Header { .. } => extended_header(out, style, m),
        ExtendedSampleDumpMsg::LoopPointTransmission {
            sample_num,
            loop_num,
            loop_type,
            start_addr,
            end_addr,
        } => {
            titled(out, style, b"extended loop points", sample_num);
            loop_number(out, style, loop_num);
            loop_points(out, style, loop_type.words(), start_addr, end_addr);
        }
        ExtendedSampleDumpMsg::LoopPointsRequest {
            sample_num,
            loop_num,
        } => {
            titled(out, style, b"extended loop points request", sample_num);
            loop_number(out, style, loop_num);
        }
    }
}
