// The program: a sheet's file and a journal's, and on standard output the file of the sheet that the journal's calls leave.
//
//   bankwrite SHEET JOURNAL > NEWSHEET
//
// Where something is refused, standard output gets nothing, so that no refusal is ever taken for a sheet; one line with the refusal's
// number and line goes to standard error.
//
// What is printed is proved: `write_into` gives it for the bytes read, every file fits its buffer (`always-fits`), and the first 33,959
// bytes of a sheet decide as the whole does (`write-bounded`). That the bytes come from the files and go to standard output is not: no
// contract speaks of that.
//
// A journal of more than 262,143 bytes is refused whole, as 19 with line 0, and no call of it is made.
#![tactic(auto)]

use files::{JOURNAL, SHEET, buffer, put, read_both, refuse};
use sheet::Refusal;
use written::write::write_into;

fn main(rt: HostRuntime) {
    let mut out = rt.stdout();
    let mut err = rt.stderr();
    let mut sheet = [0u8; SHEET];
    let mut journal = buffer();
    let Some(read) = read_both(
        &rt,
        &mut err,
        b"bankwrite",
        b"usage: bankwrite SHEET JOURNAL > NEWSHEET\n",
        &mut sheet,
        &mut journal,
    ) else {
        return;
    };
    if read.journal == JOURNAL {
        refuse(&mut err, Refusal::BadJournal.into(), 0);
        return;
    }
    let mut text = [0u8; 33958];
    let r = write_into(&sheet[..read.sheet], &journal[..read.journal], &mut text);
    if r.refusal != 0 {
        refuse(&mut err, r.refusal, r.line as u32);
        return;
    }
    put(&mut out, &mut err, b"bankwrite", &text[..r.length]);
}
