// Known answers: reads questions from standard input, a line each, and prints the reply to each and then the tally.
#![tactic(auto)]

use questions::answer::answer;
use questions::reply::Tally;
use questions::words::without_newline;
use std::io::{BufRead, BufReader};

fn reply_to_all(rt: &HostRuntime) -> anyhow::Result<()> {
    let heap = rt.alloc();
    let mut input = BufReader::new(heap, rt.stdin())?;
    let mut line = Vec::new(heap);
    let mut tally = Tally::new();
    // Not over `split`, which would cut the newlines off by itself: what a line is without its newline is what
    // `without_newline` promises.
    for _ in 0..u64::MAX {
        line.clear();
        if input.read_until(b'\n', &mut line)? == 0 {
            break;
        }
        let reply = answer(heap, without_newline(line.as_slice()))?;
        tally.count(&reply);
        println!(rt; "{reply}")?;
    }
    println!(rt; "{tally}")?;
    Ok(())
}

fn main(rt: HostRuntime) -> anyhow::Result<()> {
    reply_to_all(&rt)
}
