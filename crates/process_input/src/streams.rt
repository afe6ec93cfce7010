//! Standard streams that were closed.
use std::fs::File;
use std::os::fd::AsRawFd;

// Which descriptors are standard streams.
const LAST_STREAM: i32 = 2;

/// Files that take the places of the standard streams that this process was given closed. Else the lock of the spool
/// or a job's file would get such a place, and take what is printed. Each is a directory, so reads and writes fail.
pub fn held_streams(rt: &HostRuntime) -> [Option<File>; 3] {
    let mut held = [None, None, None];
    for place in &mut held {
        *place = held_stream(rt);
        if place.is_none() {
            break;
        }
    }
    held
}

fn held_stream(rt: &HostRuntime) -> Option<File> {
    File::open(rt, "/")
        .ok()
        .filter(|file| file.as_raw_fd() <= LAST_STREAM)
}
