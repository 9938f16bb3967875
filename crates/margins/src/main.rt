// Reads a job list as text from standard input and prints the margin of each of its jobs. What is wrong with the list is said in one line
// on standard error, and then no margin is printed.
#![tactic(auto)]

use std::io::{self, Input as Source};

// Prints the line of each task of a text's list. Every call of `margin` looks at the whole list first, so a list that is refused is refused
// at its first task.
fn print_margins(rt: &(impl Print + Eprint), text: &[u8], list: &[u8]) -> io::Result<()> {
    for task in 0..(list.len() / 4) as u64 {
        match margin::margin(list, task) {
            Ok(margin) => println!(rt; "task {task} margin {margin}")?,
            Err(rejection) => {
                jobinput::say_refused(rt, rejection, text, false);
                return Ok(());
            }
        }
    }
    Ok(())
}

fn print_input(rt: &(impl Source + Print + Eprint)) {
    let mut text = [0; 65536];
    let mut jobs = [0; 256];
    let Some(lengths) = jobinput::read_list(rt, &mut text, &mut jobs) else {
        return;
    };
    if let Err(error) = print_margins(rt, &text[..lengths.text], &jobs[..lengths.jobs]) {
        input::say_failed(rt, "standard output", error);
    }
}

fn main(rt: HostRuntime) {
    if input::has_argument(&rt, 1) {
        let _ = eprintln!(rt; "usage: margins < JOBS");
        return;
    }
    print_input(&rt);
}
