// A run of jobs under a discipline, and what holds of every run there is.
ghost use Rattle.std.specs.Prelude.{◌≡◌, ◌≤◌, true, length};
ghost use Rattle.run.specs.Lines.{lefts};
ghost use Rattle.run.specs.Kept.{LinesKept, FiguresKept, lease_kept};

use crate::accounts::Accounts;
use crate::book::Book;
use discipline::Discipline;

// One server, its jobs and its clock. The discipline says whom to serve; the book and the accounts
// are kept here. That discipline, book and accounts agree is part of the type.
#[derive(Drop)]
pub struct Run<D: Discipline> {
    pub(crate) discipline: D,
    pub(crate) book: Book,
    pub(crate) accounts: Accounts,
    ghost agrees: { D.present discipline ≡ lefts book.lines },
    ghost long: { length book.lines ≡ 1024 },
    ghost many: { book.entered ≤ 1024 },
    ghost lines: { LinesKept book accounts.clock },
    ghost figures: { FiguresKept accounts },
    ghost held: { lease_kept accounts.lease (D.present discipline) accounts.clock ≡ true },
}
