// Reads one sheet from standard input and prints its listing. What goes wrong is said in one line on standard error.
#![tactic(auto)]

use std::io::Input as Source;

// Prints the listing of a sheet, which always has room.
fn list_sheet(rt: &(impl Print + Eprint), sheet: &[u8]) {
    let mut text = [0; 8192];
    let Ok(length) = listing::list_sheet(sheet, &mut text) else {
        return;
    };
    if let Err(error) = rt.write_all(&text[..usize::from(length)]) {
        input::say_failed(rt, "standard output", error);
    }
}

// Reads one byte more than a sheet can have. Of a longer input the rest is left unread, which changes nothing: mark, version and counts
// stand in the first 7 bytes, and 713 bytes are too many just as any greater number is (proved as `listing_cut`).
fn list_input(rt: &(impl Source + Print + Eprint)) {
    let mut sheet = [0; 713];
    if let Some(n) = input::read_input(rt, &mut sheet) {
        list_sheet(rt, &sheet[..n]);
    }
}

fn main(rt: HostRuntime) {
    if input::has_argument(&rt, 1) {
        let _ = eprintln!(rt; "usage: list < SHEET");
        return;
    }
    list_input(&rt);
}
