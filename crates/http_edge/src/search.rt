//! Where a head ends, found piece by piece.
ghost use Rattle.std.specs.Prelude.{◌≤◌, ◌<◌, ◌≡◌, ◌+◌, ◌-◌, length, take, true, false, IfSome, IfNone};
ghost use Rattle.http_edge.specs.Searches.{IsSearched, FindsEnd, is_last, next_state};

/// Where a search stands between two bytes.
#[derive(Clone, Copy)]
pub enum SearchState {
    Within,
    AfterFeed,
    AfterReturn,
}

/// What a search came to.
#[derive(Clone, Copy)]
pub enum Search {
    /// A head of so many bytes.
    Ended(usize),
    /// No head ends in the bytes.
    Open(SearchState),
}

/// Goes on with a search behind the first `from` bytes. `looked` counts the bytes that are looked at: of those behind them none twice.
pub fn go_on(bytes: &[u8], from: usize, state: SearchState, looked: &mut usize) -> Search
    requires within { from ≤ length bytes.now }
    requires searched { IsSearched (take from bytes.now) state }
    requires countable { looked.old + (length bytes.now - from) ≤ usize.MAX }
    ensures finds { FindsEnd bytes.now result }
    ensures once { (looked.old ≤ looked.new) × (looked.new + from ≤ looked.old + length bytes.now) }
{
    let mut state = state;
    for i in from..bytes.len() {
        match step(state, bytes[i], looked) {
            Some(next) => state = next,
            None => return Search::Ended(i + 1),
        }
    }
    Search::Open(state)
}

// The state behind one more byte, which is counted, or `None` where the byte is the last of a head.
fn step(state: SearchState, byte: u8, looked: &mut usize) -> Option<SearchState>
    requires { looked.old < usize.MAX }
    ensures counted { looked.new ≡ looked.old + 1 }
    ensures last { IfNone result (is_last state byte ≡ true) }
    ensures next { IfSome result (λ s. (is_last state byte ≡ false) × (s ≡ next_state state byte)) }
{
    *looked += 1;
    match state {
        SearchState::Within => {
            if byte == b'\n' {
                Some(SearchState::AfterFeed)
            } else {
                Some(SearchState::Within)
            }
        }
        SearchState::AfterFeed => {
            if byte == b'\n' {
                None
            } else if byte == b'\r' {
                Some(SearchState::AfterReturn)
            } else {
                Some(SearchState::Within)
            }
        }
        SearchState::AfterReturn => {
            if byte == b'\n' {
                None
            } else {
                Some(SearchState::Within)
            }
        }
    }
}
