// The call that reads: the loop judged by the 2015 reading, then walked once more for its layers.
ghost use Rattle.std.specs.Prelude.{◌≡◌, ◌≤◌, length, take, drop};
ghost use Rattle.es_loop.specs.Answer.{entries_judged};
ghost use Rattle.framing.specs.Pieces.{whole};
ghost use Rattle.vocabulary.specs.declared.stream_types.Reading.TheVariants.{Edition2015};
ghost use Rattle.loop_entries.specs.Entries.{streams_of};
ghost use Rattle.es_loop.specs.Reading.{verdict_of};
ghost use Rattle.stereo_set.specs.Views.{no_views, layers_after};
ghost use Rattle.stereo_set.specs.Reading.{view_of, views_in, stereo_read};

use super::set::{StereoRead, refused, set_of};
use super::views::{Layers, View, next_view, no_views};
use es_loop::Judged;
use vocabulary::Reading;

// A whole entry.
fn read_view(pair: bool, entry: &[u8]) -> View
    requires { 5 ≤ length entry.now }
    ensures { result ≡ view_of pair (whole (take 5 entry.now) (drop 5 entry.now)) }
{
    let stream = es_loop::read_stream(Reading::Edition2015, pair, entry);
    View {
        entry: es_loop::entry_of(stream),
        found: mvc_descriptors::find_extension(&entry[5..]),
    }
}

// The layers of a loop that was judged and accepted.
fn find_layers(pair: bool, bytes: &[u8]) -> Layers
    requires { verdict_of Edition2015 bytes.now ≡ entries_judged (length (streams_of Edition2015 bytes.now)) pair }
    ensures { result ≡ layers_after no_views (views_in bytes.now) }
{
    let mut layers = no_views();
    let mut at = 0;
    while at < bytes.len() {
        let left = &bytes[at..];
        let size = es_loop::entry_size(left);
        let view = read_view(pair, &left[..size]);
        layers = next_view(layers, view);
        at += size;
    }
    layers
}

// The two layers and their descriptors, straight from a loop's bytes, or the refusal.
pub fn read_stereo(bytes: &[u8]) -> StereoRead
    ensures { result ≡ stereo_read bytes.now }
{
    match es_loop::judge(Reading::Edition2015, bytes) {
        Err(refusal) => refused(refusal),
        Ok(Judged { count: _, pair }) => set_of(find_layers(pair, bytes)),
    }
}
