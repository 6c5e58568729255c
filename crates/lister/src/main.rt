// Lists the captured byte stream on standard input: blocks are read, handed to the library, and what it printed is written.
#![tactic(auto)]

use capture::Lister;

// standard input, as a file descriptor
const STDIN: i32 = 0;

// standard output
const STDOUT: i32 = 1;

// standard error
const STDERR: i32 = 2;

fn cannot_write() {
    io::write_all(STDERR, b"lister: standard output cannot be written\n");
}

// Lists a block, an output at a time. The lister behind it, or none where the listing is over: it has stopped, or what it printed was not written.
fn list_block(l: Lister, block: &[u8]) -> Option<Lister> {
    let mut out = io::large_buffer();
    let mut state = l;
    // a listing goes on where the last one stopped, for want of room
    let mut from: usize = 0;
    while from < block.len() {
        let r = listing::list(state, &block[from..block.len()], &mut out);
        state = r.lister;
        from += r.consumed;
        let used = r.used;
        if !io::write_all(STDOUT, &out[0..used]) {
            cannot_write();
            return None;
        }
    }
    if state.stopped { None } else { Some(state) }
}

// The last line.
fn list_end(l: Lister) {
    let mut out = [0u8; 160];
    let n = lines::print(capture::last_line(l), &mut out);
    if !io::write_all(STDOUT, &out[0..n]) {
        cannot_write();
    }
}

// A proved loop has to end, and nothing says that a stream does: so the blocks are counted, to a number that none comes to.
fn main() {
    let mut block = io::large_buffer();
    let mut state = capture::fresh_lister();
    for _ in 0..u64::MAX {
        let n = io::read_full(STDIN, &mut block);
        if n == 0 {
            break;
        }
        let Some(next) = list_block(state, &block[..n]) else {
            return;
        };
        state = next;
    }
    list_end(state);
}
