// The walk before the one that judges: whether a loop has two views and neither has a hierarchy descriptor. It goes by the heads, and looks into the
// descriptors of views alone.
#![tactic(auto)]

ghost use Rattle.std.specs.Prelude.{◌≡◌, ◌≤◌, length, take, drop};
ghost use Rattle.framing.specs.Pieces.{whole};
ghost use Rattle.implied.specs.Walking.{view_next};
ghost use Rattle.loop_entries.specs.Entries.{stream_of, shown_of, pair_of, streams_alone};

use implied::Views;
use loop_entries::entry_size;
use vocabulary::Reading;

// One whole entry more.
fn view_in(reading: Reading, views: Views, entry: &[u8]) -> Views
    requires { 5 ≤ length entry.now }
    ensures { result ≡ view_next views (shown_of (stream_of reading (whole (take 5 entry.now) (drop 5 entry.now)))) }
{
    let stream_type = entry[0];
    if implied::is_view(stream_type) {
        let named = descriptors::name_layers(reading, &entry[5..]);
        let record = named.record;
        let described = implied::is_described(record);
        return implied::view_next(views, stream_type, described);
    }
    views
}

// Any bytes at all. What a view has spoiled stays so, and bytes that hold no whole entry are no view.
pub fn implied_pair(reading: Reading, bytes: &[u8]) -> bool
    ensures { result ≡ pair_of (streams_alone reading bytes.now) }
{
    let mut views = implied::no_views();
    let mut at = 0;
    while at < bytes.len() {
        let left = &bytes[at..];
        let size = entry_size(left);
        if left.len() < size {
            return implied::is_pair(views);
        }
        views = view_in(reading, views, &left[..size]);
        if views.spoiled {
            return false;
        }
        at += size;
    }
    implied::is_pair(views)
}
