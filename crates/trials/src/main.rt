// Runs the edge cases of documents 01 and 02 that are not proved, and compares with trying all sets: the lists for graphs of 1 to 16 vertices, and with each
// of some silent sets for graphs of 1 to 12, for graphs of 1 to 10 the largest k-plex with each set forced, how loose each set is, and the core of each slack
// and floor with its passes, and for graphs of 2 to 14 the list after each of some changes. Prints a line for each group: how many cases it has, and how many
// of them differ. Where an answer differs, its graph is printed as the text of a sheet, also where it has no sheet.
#![tactic(auto)]

mod all_sets;
mod change_edges;
mod change_refusals;
mod changes;
mod compare;
mod cores;
mod graphs;
mod isolated;
mod isolated_sheets;
mod largest_plex;
mod list_edges;
mod looseness;
mod memory;
mod refusals;
mod requests;
mod sheet;
mod silent;
mod tally;
mod texts;
mod words;

use crate::compare::FAMILIES;
use crate::graphs::Family;
use crate::tally::Tally;
use judging::check::MOST_SLACK;
use std::io;

// The most vertices where lists are compared; where this is done for each of some silent sets; and where it is done after each change.
const MOST_LISTED: usize = 16;

const MOST_SILENT: usize = 12;

const MOST_CHANGED: usize = 14;

// The most vertices where every set is asked for, forced or how loose it is, and where every core is.
const MOST_ASKED: usize = 10;

// How many variants of a family are changed, or more: eight of each slack.
const CHANGED: usize = 8 * MOST_SLACK;

fn list_cases(cases: &mut Tally<impl Print>) -> io::Result<()> {
    list_edges::ranges(cases);
    cases.print("accepted slack and floor")?;
    list_edges::all_adjacent(cases);
    cases.print("all of 64 adjacent")?;
    list_edges::none(cases);
    cases.print("floor above n, no slots")?;
    silent::found(cases)?;
    cases.print("silent vertices")?;
    list_edges::refused(cases);
    cases.print("refusals of the list")
}

fn refusal_cases(cases: &mut Tally<impl Print>) -> io::Result<()> {
    refusals::judged(cases);
    cases.print("refusals of judging maximality")?;
    refusals::found(cases);
    cases.print("refusals of core and reach")?;
    refusals::bounded(cases);
    cases.print("refusals of the bounds")
}

fn sheet_cases(cases: &mut Tally<impl Print>) -> io::Result<()> {
    sheet::read(cases);
    cases.print("sheets read")?;
    sheet::written(cases);
    cases.print("sheets written")?;
    sheet::read_back(cases);
    cases.print("sheets read back")
}

fn row_cases(cases: &mut Tally<impl Print>) -> io::Result<()> {
    isolated::found(cases)?;
    cases.print("vertices without edges, on rows")?;
    looseness::found(cases);
    cases.print("looseness")?;
    looseness::refused(cases);
    cases.print("refusals of looseness")?;
    cores::found(cases);
    cases.print("cores and passes")?;
    largest_plex::found(cases);
    cases.print("largest k-plexes")?;
    largest_plex::refused(cases);
    cases.print("refusals of the largest")
}

fn change_cases(cases: &mut Tally<impl Print>) -> io::Result<()> {
    change_edges::found(cases)?;
    cases.print("changes of a book")?;
    change_edges::many(cases)?;
    cases.print("changes at 4,096 sets")?;
    change_refusals::refused(cases);
    cases.print("refusals of a change")
}

// The lists of so many variants of a family.
fn listed(
    cases: &mut Tally<impl Print>,
    name: &str,
    family: Family,
    count: usize,
) -> io::Result<()> {
    compare::of_family(cases, family, MOST_LISTED, count, &compare::beside_all_sets)?;
    cases.print(name)
}

fn lists(cases: &mut Tally<impl Print>) -> io::Result<()> {
    listed(cases, "empty graphs", Family::EMPTY, 1)?;
    for (name, family, count) in FAMILIES {
        listed(cases, name, family, count)?;
    }
    Ok(())
}

// The other calls on the same graphs, where they have few vertices.
fn comparisons(cases: &mut Tally<impl Print>) -> io::Result<()> {
    compare::families(cases, MOST_SILENT, 1, silent::beside_all_sets)?;
    cases.print("silent vertices against all sets")?;
    compare::families(cases, MOST_ASKED, 1, largest_plex::beside_all_sets)?;
    cases.print("largest against all sets")?;
    compare::families(cases, MOST_ASKED, 1, looseness::beside_definition)?;
    cases.print("looseness against the definition")?;
    compare::families(cases, MOST_ASKED, 1, cores::beside_definition)?;
    cases.print("cores against the definition")?;
    compare::families(cases, MOST_CHANGED, CHANGED, changes::beside_all_sets)?;
    cases.print("changes against all sets")
}

// Prints the line of every group.
fn run(cases: &mut Tally<impl Print>) -> io::Result<()> {
    list_cases(cases)?;
    refusal_cases(cases)?;
    sheet_cases(cases)?;
    row_cases(cases)?;
    change_cases(cases)?;
    lists(cases)?;
    comparisons(cases)
}

fn main(rt: HostRuntime) -> io::Result<()> {
    run(&mut Tally::new(&rt))
}
