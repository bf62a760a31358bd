// The program: a sheet's file and a journal's, and on standard output the answers of the journal's calls, a line each, or one line
// with the refusal's number and line.
//
//   bankrun SHEET JOURNAL
//
// What is printed is proved: `print` gives it for the bytes read, and the first 33,959 bytes of a sheet decide as the whole does
// (`run-bounded`). That the bytes come from the files and go to standard output is not: no contract speaks of that.
//
// A journal of more than 262,143 bytes is refused whole, as 19 with line 0, and no call of it is made. The answers have at most 262,144
// bytes; where they would have more, the answer is 9.
#![tactic(auto)]

use files::{JOURNAL, SHEET, buffer, put, read_both, refuse};
use journal::print::print;
use sheet::Refusal;

fn main(rt: HostRuntime) {
    let mut out = rt.stdout();
    let mut err = rt.stderr();
    let mut sheet = [0u8; SHEET];
    let mut journal = buffer();
    let Some(read) = read_both(
        &rt,
        &mut err,
        b"bankrun",
        b"usage: bankrun SHEET JOURNAL\n",
        &mut sheet,
        &mut journal,
    ) else {
        return;
    };
    if read.journal == JOURNAL {
        refuse(&mut out, Refusal::BadJournal.into(), 0);
        return;
    }
    let mut text = buffer();
    let count = print(&sheet[..read.sheet], &journal[..read.journal], &mut text);
    put(&mut out, &mut err, b"bankrun", &text[..count]);
}
