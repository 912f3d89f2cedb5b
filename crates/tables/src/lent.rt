// The three tables as a caller lends them, and how long they must be: a row of n bytes for each node, and one for each interface.
ghost use Rattle.std.specs.Prelude.{◌≡◌};
ghost use Rattle.tables.specs.Lent.{tables_lent, tables_short};
ghost use Rattle.tables.specs.inner.Given.{WithinLimits};

// Nothing is promised of the tables: who reads them checks them first.
#[derive(Clone, Copy)]
pub struct Tables<'a> {
    pub routing: &'a [u8],
    pub forwarding: &'a [u8],
    pub backwarding: &'a [u8],
}

// Whether one of them is shorter than its rows.
#[tactic(auto, using(crate::proofs::Lengths::lengths))]
pub fn tables_short(n: usize, links: usize, tables: &Tables<'_>) -> bool
    requires { WithinLimits n links }
    ensures { result ≡ tables_short n links (tables_lent tables.now) }
{
    if tables.routing.len() < n * n {
        return true;
    }
    let rows = 2 * links * n;
    if tables.forwarding.len() < rows {
        return true;
    }
    tables.backwarding.len() < rows
}
