//! Calls one library call many times, so that `bench/libraries.py` and `bench/learned.py` can tell
//! the time of one.
//!
//!     take PORTS TIMES    an extender takes a frame of a group of PORTS ports
//!     rows 0 TIMES        the rows of a set of all 4,033 ports below one bridge port, 64 extenders
//!     member VLANS TIMES  a port becomes a member of a VLAN and leaves it, among VLANS VLANs that
//!                         have a set each
//!     port VLANS TIMES    a port that is in all these VLANs goes down and up again
//!     spaces COUNT 1      number spaces of 4,094 channels and 12,288 groups for COUNT bridge ports
//!     spread COUNT TIMES  COUNT addresses are seen; then, TIMES times, one is seen and another
//!                         looked up
//!     alike COUNT TIMES   the same, with addresses that agree in their last two bytes
//!     tick COUNT TIMES    COUNT addresses are seen; then TIMES seconds go by and none dies; prints
//!                         the nanoseconds of all these ticks
//!     forget COUNT TIMES  COUNT addresses are seen; then, TIMES times, ten more at a port of their
//!                         own, which is forgotten; prints the nanoseconds of forgetting
#![tactic(auto)]

mod addresses;
mod link_frames;
mod setups;
mod vlans;

use exb_model::memory::NoMemory;
use std::alloc::Global;
use std::env;
use std::process::ExitCode;

// What is counted in a tree of extenders.
fn counted(alloc: Global, what: &str, count: u32, times: u32) -> Result<u64, NoMemory> {
    let mut setup = setups::bare(alloc);
    match what {
        "rows" => setups::rows(alloc, &mut setup, times),
        "spaces" => setups::spaces(alloc, &mut setup, count.min(64) as u8),
        _ => vlans::change(alloc, &mut setup, what, count.min(4094) as u16, times),
    }
}

// Whether what the words ask for was done.
fn does(rt: &HostRuntime, what: &str, count: u32, times: u32) -> bool {
    let alloc = rt.alloc();
    match what {
        "take" => link_frames::take(alloc, count.min(64) as u8, times).unwrap_or(0) > 0,
        "spread" | "alike" => addresses::measured(rt, alloc, what, count, times).is_some(),
        "tick" | "forget" => match addresses::measured(rt, alloc, what, count, times) {
            Some(taken) => println!(rt; "{taken}").is_ok(),
            None => false,
        },
        _ => counted(alloc, what, count, times).unwrap_or(0) > 0,
    }
}

// The status with these words: 1 where something could not be done, 2 where they are no words for
// this program.
fn status(rt: &HostRuntime, words: &[String]) -> u8 {
    let [_program, what, count, times] = words else {
        return 2;
    };
    match (count.parse::<u32>(), times.parse::<u32>()) {
        (Ok(count), Ok(times)) => u8::from(!does(rt, what.as_str(), count, times)),
        _ => 2,
    }
}

fn main(rt: HostRuntime) -> ExitCode {
    let Ok(words) = env::args(&rt) else {
        return ExitCode::from(2);
    };
    match words.collect::<Vec<String>>(rt.alloc()) {
        Ok(words) => ExitCode::from(status(&rt, words.as_slice())),
        Err(_) => ExitCode::from(1),
    }
}
