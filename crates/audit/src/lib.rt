// The audit: whether any header and any two tables keep document 01's rules 1 to 7. It changes nothing, and needs no memory beside its locals.
#![tactic(auto)]

ghost use Rattle.numbers.specs.Prelude.{Decides};
ghost use Rattle.rules.specs.Prelude.{Rule1, Passes, PassesForClear};
ghost use Rattle.audit.specs.Verdicts.{Exact};

use rows::header::Header;
use rows::item::ItemRow;
use rows::row::Row;
use rows::shelf::ShelfRow;
use std::fmt;

// The first rule that fails; of rules 5 to 7, that one of them does. Rule 4 follows from 2 and 3.
#[derive(Clone, Copy, PartialEq, Eq, Debug)]
pub enum Verdict {
    Passes,
    Rule1,
    Rule2,
    Rule3,
    Rules5To7,
}

impl fmt::Display for Verdict {
    fn fmt<W: fmt::Write>(&self, f: &mut fmt::Formatter<W>) -> fmt::Result {
        match self {
            Verdict::Passes => write!(f, "passes"),
            Verdict::Rule1 => write!(f, "rule 1"),
            Verdict::Rule2 => write!(f, "rule 2"),
            Verdict::Rule3 => write!(f, "rule 3"),
            Verdict::Rules5To7 => write!(f, "rules 5 to 7"),
        }
    }
}

// Rule 1.
pub fn header_right(h: Header, shelves: &[u16], items: &[u16]) -> bool
    ensures { Decides result (Rule1 h shelves.now items.now) }
{
    if !ShelfRow::has(shelves, h.used_shelves) {
        return false;
    }
    if !ItemRow::has(items, h.used_items) {
        return false;
    }
    limit_checks::within_limits(h.limits)
}

// What clear asks: rule 1, and a row for each column in each table.
pub fn passes_for_clear(h: Header, shelves: &[u16], items: &[u16]) -> bool
    ensures { Decides result (PassesForClear h shelves.now items.now) }
{
    if !header_right(h, shelves, items) {
        return false;
    }
    let columns = limit_checks::columns(h.limits);
    if !ShelfRow::has(shelves, columns) {
        return false;
    }
    ItemRow::has(items, columns)
}

// The rules after the first, one after another.
fn by_rules(h: Header, shelves: &[u16], items: &[u16]) -> Verdict
    requires { Rule1 h shelves.now items.now }
    ensures { Exact h shelves.now items.now result }
{
    if !audit_shelves::shelves_right(h, shelves, items) {
        return Verdict::Rule2;
    }
    let Some(t) = audit_items::all_items(h, shelves, items) else {
        return Verdict::Rule3;
    };
    if !audit_lists::lists_agree(h, shelves, items, t) {
        return Verdict::Rules5To7;
    }
    Verdict::Passes
}

// The fast walk first, since most tables are right; where it says no, the rules tell which fails, or that none does.
pub fn audit(h: Header, shelves: &[u16], items: &[u16]) -> Verdict
    ensures { Exact h shelves.now items.now result }
{
    if !header_right(h, shelves, items) {
        return Verdict::Rule1;
    }
    if audit_fast::says_yes(h, shelves, items) {
        return Verdict::Passes;
    }
    by_rules(h, shelves, items)
}

// The verdict as a test, for callers that ask no more.
pub fn passes(h: Header, shelves: &[u16], items: &[u16]) -> bool
    ensures { Decides result (Passes h shelves.now items.now) }
{
    audit(h, shelves, items) == Verdict::Passes
}
