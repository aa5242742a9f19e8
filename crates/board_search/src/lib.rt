// A watched query looked for in the packs of a board. Each image was judged with the board, and is not judged again.
#![tactic(auto)]

ghost use Rattle.std.specs.Prelude.{◌≡◌, ◌≤◌, ◌<◌, unwrap_or, IfSome};
ghost use Rattle.definition.specs.Limits.{most_entries, most_packs};
ghost use Rattle.definition.specs.Ranking.{no_entry};
ghost use Rattle.definition.specs.Board.{query_number, pack_count, query_count, board_in};
ghost use Rattle.board_layout.specs.Laid.{lent_of};
ghost use Rattle.positions.specs.Parts.{positions_in};
ghost use Rattle.lookup.specs.Searches.{numbered};
ghost use Rattle.board_search.specs.Slots.{best_slots, found_after, spot_of};
ghost use Rattle.board_search.specs.Spots.{spot_replied};

use board_judge::Board;
use board_layout::Watched;
use limits::{MOST_ENTRIES, QUERY_BYTES, QUERY_PARTS};
use lookup::search;
use marks::no_row;
use query::{Names, parse_both};

// An entry of a board is told by one number, that of its slot times 512 and of its row: a pair would be no plainer, since the definition's ranking,
// to which all contracts tie it, numbers entries.

// The best entry after those of slot `slot`: `entry`, if one of these wins.
fn number_of(found: Option<usize>, slot: usize, entry: Option<usize>) -> Option<usize>
    requires { (slot < most_packs) × IfSome entry (λ i. i < most_entries) }
    ensures { result ≡ found_after found slot entry }
{
    match entry {
        Some(i) => Some(MOST_ENTRIES * slot + i),
        None => found,
    }
}

// The entries of the packs in their order, but for the pack in slot `skip` (none: of all), one best row for all: the one that beats the rest.
fn search_board(board: Board<'_>, skip: Option<usize>, name: &Names, class: &Names) -> Option<usize>
    ensures { spot_replied result ≡ numbered (best_slots (lent_of board.entry.buffers) (unwrap_or skip most_packs) (positions_in name.now class.now) 0 (pack_count (lent_of board.entry.buffers)) no_entry) }
{
    let count = board.buffers.pack_count();
    let mut held = no_row();
    let mut found = None;
    for i in 0..count {
        if skip != Some(i) {
            let image = board.image(i);
            let last = image.count();
            let entry = search(&image, name, class, 0, last, false, &mut held);
            found = number_of(found, i, entry);
        }
    }
    found
}

// The entry that watched query `q` finds in the packs, but for the pack in slot `skip` (none: in all).
pub fn find(board: Board<'_>, q: usize, skip: Option<usize>) -> Option<usize>
    requires { q < query_count (lent_of board.buffers) }
    ensures { spot_replied result ≡ spot_of (lent_of board.entry.buffers) (unwrap_or skip most_packs) (query_number (board_in (lent_of board.entry.buffers)).queries q) }
{
    let Watched { name, class } = board.buffers.query_at(q);
    match parse_both::<QUERY_BYTES, QUERY_PARTS>(name, class) {
        Ok(Some((names, classes))) => {
            let name = names.names(name);
            let class = classes.names(class);
            search_board(board, skip, &name, &class)
        }
        // A malformed query finds nothing.
        Ok(None) => None,
        // None past a limit is watched.
        Err(_) => None,
    }
}
