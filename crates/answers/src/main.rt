// `answers`: reads jobs from standard input until it ends, and writes a line for each. By it the readers are compared with the Rust's.
// A job that is cut short, names no reader or passes a bound ends the program. The buffers are made once, for all jobs.
#![tactic(auto)]

use answers_jobs::StreamJob;

// Reads the rest of a job and answers it, if it is a good one.
fn run_job(
    job: StreamJob,
    profile: &mut [u8],
    behind: &mut [u8],
    words: &mut [u32],
    line: &mut [u8],
) -> Option<()> {
    let profile = profile.get_mut(..job.length as usize)?;
    let behind = behind.get_mut(..answers_jobs::bytes_behind(job.reader))?;
    let words = words.get_mut(..job.words as usize)?;
    if io::read_full(0, profile) < profile.len() || io::read_full(0, behind) < behind.len() {
        return None;
    }
    let end = answers_lines::answer_job(profile, job, behind, words, line);
    if end == 0 {
        return None;
    }
    io::write_all(1, line.get(..end)?).then_some(())
}

// Runs the next job, and tells whether to go on.
fn run_next(
    head: &mut [u8],
    profile: &mut [u8; 1_048_576],
    behind: &mut [u8; 19],
    words: &mut [u32; 8_192],
    line: &mut [u8; 196_608],
) -> Option<()> {
    let n = io::read_full(0, head);
    if n == 0 {
        return None;
    }
    let ran = match answers_jobs::read_head(head.get(..n)?) {
        Some(job) => run_job(job, profile, behind, words, line),
        None => None,
    };
    if ran.is_none() {
        io::write_all(1, b"bad job\n");
    }
    ran
}

fn main() {
    let mut head = [0u8; 33];
    let mut profile = [0u8; 1_048_576];
    let mut behind = [0u8; 19];
    let mut words = [0u32; 8_192];
    let mut line = [0u8; 196_608];
    for _ in 0..u64::MAX {
        if run_next(&mut head, &mut profile, &mut behind, &mut words, &mut line).is_none() {
            return;
        }
    }
}
