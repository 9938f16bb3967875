// Reads one sheet from standard input and writes the sheet of the other version to standard output. What is wrong is said in one line on
// standard error, and then no sheet is written.
#![tactic(auto)]

use std::io::Input as Source;

fn write_moved(rt: &(impl Print + Eprint), sheet: &[u8]) {
    let mut out = [0; 712];
    match mover::move_sheet(sheet, &mut out) {
        Ok(length) => {
            if let Err(error) = rt.write_all(&out[..usize::from(length)]) {
                input::say_failed(rt, "standard output", error);
            }
        }
        Err(rejection) => {
            let _ = eprintln!(rt; "{rejection}");
        }
    }
}

// Reads one byte more than a sheet can have. Of a longer input the rest is left unread, which changes nothing (proved as `moving_cut`).
fn move_input(rt: &(impl Source + Print + Eprint)) {
    let mut sheet = [0; 713];
    if let Some(n) = input::read_input(rt, &mut sheet) {
        write_moved(rt, &sheet[..n]);
    }
}

fn main(rt: HostRuntime) {
    if input::has_argument(&rt, 1) {
        let _ = eprintln!(rt; "usage: move_sheet < SHEET > MOVED");
        return;
    }
    move_input(&rt);
}
