// Single steps on a chain, which may break it for the next step to mend.
ghost use Rattle.std.specs.Prelude.{◌≡◌, ◌<◌, vec_len, vec_capacity};
ghost use Rattle.orders.specs.Told.{terms_of};
ghost use Rattle.chain_table.specs.Chains.{spot, links_at};
ghost use Rattle.chain_table.specs.Steps.{Node, Relinked, Joined, Refilled, Pushed};

use crate::chain::{Chain, Links, Row};
use orders::order::Order;

// Each step asks for a row or the end, as an index into a slice is asked to be in range.
impl Chain {
    // The neighbours of a row, or of the end.
    pub(crate) fn neighbours(&self, at: Option<u16>) -> Links
        requires { Node self.now (spot at) }
        ensures { result ≡ links_at self.now (spot at) }
    {
        match at {
            Some(row) => self.rows[usize::from(row)].links,
            None => self.ends,
        }
    }

    pub(crate) fn relink(&mut self, at: Option<u16>, links: Links)
        requires { Node self.old (spot at) }
        ensures { Relinked self.old self.new (spot at) links }
    {
        match at {
            Some(row) => self.rows[usize::from(row)].links = links,
            None => self.ends = links,
        }
    }

    // Makes `b` follow `a`.
    pub(crate) fn join(&mut self, a: Option<u16>, b: Option<u16>)
        requires first { Node self.old (spot a) }
        requires second { Node self.old (spot b) }
        ensures { Joined self.old self.new (spot a) (spot b) }
    {
        let before = self.neighbours(a).before;
        self.relink(a, Links { before, after: b });
        let after = self.neighbours(b).after;
        self.relink(b, Links { before: a, after });
    }

    // Puts an order into a row.
    pub(crate) fn refill(&mut self, at: usize, order: Order)
        requires { at < vec_len self.old.rows }
        ensures { Refilled self.old self.new at (terms_of order) }
    {
        self.rows[at].order = order;
    }

    // Adds a row that is not chained.
    pub(crate) fn push(&mut self, order: Order)
        requires { vec_len self.old.rows < vec_capacity self.old.rows }
        ensures { Pushed self.old self.new }
    {
        let links = Links {
            before: None,
            after: None,
        };
        self.rows.push_reserved(Row { order, links });
    }
}
