// `curve-line`: reads one job from standard input and prints its tone curve.
#![tactic(auto)]

fn main() {
    // one byte more than the longest job, so that a longer one is seen
    let mut job = [0u8; 65_537];
    let n = io::read_full(0, &mut job);
    let mut line = [0u8; 256];
    let end = curve_line_text::curve_line(&job[..n], &mut line);
    if let Some(text) = line.get(..end) {
        io::write_all(1, text);
    }
}
