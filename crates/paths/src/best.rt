// The best path from a source to a destination: weight sum, links and routing entry.
ghost use Rattle.std.specs.Prelude.{◌≡◌, IfOk};
ghost use Rattle.net.specs.Lent.{rows_lent};
ghost use Rattle.net.specs.Told.{told};
ghost use Rattle.paths.specs.Best.{best_path_verdict, best_path_told, BestPathAnswer};

use crate::column::column_of;
use net::{CheckedRows, LentRows, Node, PlacedRefusal, Refusal, entry};

// What the entry answers; where there is no path, weight sum and set are 0.
#[derive(Clone, Copy)]
pub struct BestPath {
    pub sum: u32,
    pub links: u64,
    pub entry: u8,
}

#[tactic(auto, unfolding(crate::specs::Best::best_path_verdict, net::specs::Check::or_else, net::specs::Check::refused_if))]
fn check_best_path<'a>(
    network: &LentRows<'a>,
    source: Node,
    destination: Node,
) -> Result<CheckedRows<'a>, PlacedRefusal>
    ensures refusal { told result ≡ best_path_verdict (rows_lent network.now) source.0 destination.0 }
    ensures same_rows { IfOk result (λ checked. checked.rows ≡ network.now) }
{
    let checked = network.checked()?;
    if network.nodes <= source.0 {
        return Err(Refusal::NodeNumber.at(0));
    }
    if network.nodes <= destination.0 {
        return Err(Refusal::NodeNumber.at(0));
    }
    Ok(checked)
}

pub fn best_path(
    network: &LentRows<'_>,
    source: Node,
    destination: Node,
) -> Result<BestPath, PlacedRefusal>
    ensures { BestPathAnswer (rows_lent network.now) source.0 destination.0 (best_path_told result) }
{
    let network = check_best_path(network, source, destination)?;
    let column = column_of(&network, destination);
    let cost = column[source.0];
    if source == destination {
        return Ok(BestPath {
            sum: 0,
            links: 0,
            entry: entry::HERE,
        });
    }
    if cost.known() {
        return Ok(BestPath {
            sum: cost.sum,
            links: cost.links.number(),
            entry: entry::onward(cost.first),
        });
    }
    Ok(BestPath {
        sum: 0,
        links: 0,
        entry: entry::NOWHERE,
    })
}
