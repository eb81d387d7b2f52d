// How many cases of a group were run, how many of them differ from what they should be, and where this is printed.
use crate::graphs::Graph;
use crate::texts::Text;
use judging::Request;
use std::io;

#[derive(Drop)]
pub struct Tally<'a, P> {
    rt: &'a P,
    cases: u64,
    different: u64,
}

impl<'a, P: Print> Tally<'a, P> {
    // No case.
    pub fn new(rt: &'a P) -> Self {
        Tally {
            rt,
            cases: 0,
            different: 0,
        }
    }

    // One case more.
    pub fn count(&mut self, right: bool) {
        self.cases = self.cases.wrapping_add(1);
        self.different = self.different.wrapping_add(!right as u64);
    }

    // One case more of a graph. A difference prints it.
    pub fn count_of(&mut self, graph: &Graph, request: Request, right: bool) -> io::Result<()> {
        if !right {
            Text::laid_out(graph, request).print(self.rt)?;
        }
        self.count(right);
        Ok(())
    }

    // Prints the line of the group, and begins the next one.
    pub fn print(&mut self, name: &str) -> io::Result<()> {
        println!(self.rt;
            "{name}: {} cases, {} different",
            self.cases, self.different
        )?;
        *self = Tally::new(self.rt);
        Ok(())
    }
}
