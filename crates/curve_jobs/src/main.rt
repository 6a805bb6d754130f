// Runs a table of `curve-line` jobs, each behind its length (32 bits, big-endian), and prints what `curve-line` prints for each.
#![tactic(auto)]

// Runs the next job, if there is a whole one.
fn run_next(job: &mut [u8]) -> Option<()> {
    let mut head = [0u8; 4];
    if io::read_full(0, &mut head) < head.len() {
        return None;
    }
    let job = job.get_mut(..u32::from_be_bytes(head) as usize)?;
    if io::read_full(0, job) < job.len() {
        return None;
    }
    let mut line = [0u8; 256];
    let end = curve_line_text::curve_line(job, &mut line);
    if let Some(text) = line.get(..end) {
        io::write_all(1, text);
    }
    Some(())
}

fn main() {
    let mut job = [0u8; 65_537];
    for _ in 0..1_000_000 {
        if run_next(&mut job).is_none() {
            return;
        }
    }
}
