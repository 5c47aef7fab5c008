// The layers of a loop as the stereo set looks at them: how many they are, as far as that matters, and the first two.
ghost use Rattle.std.specs.Prelude.{◌≡◌};
ghost use Rattle.loop_entries.specs.Entries.{blank_entry};
ghost use Rattle.stereo_set.specs.Views.{no_view, no_views, add_layer, next_view};

use descriptors::Record;
use es_loop::Entry;
use mvc_descriptors::Found;

// An entry as it is answered, and what its descriptors have of the MVC extension descriptor.
#[derive(Clone, Copy)]
pub struct View {
    pub entry: Entry,
    pub found: Found,
}

// A count of 3 says that there are more than two.
#[derive(Clone, Copy)]
pub struct Layers {
    pub count: usize,
    pub first: View,
    pub second: View,
}

pub fn blank_entry() -> Entry
    ensures { result ≡ blank_entry }
{
    Entry {
        stream_type: 0,
        pid: 0,
        record: Record::NoRecord,
        embedded: descriptors::no_layers(),
    }
}

fn no_view() -> View
    ensures { result ≡ no_view }
{
    View {
        entry: blank_entry(),
        found: Found::Missing,
    }
}

// Before any entry.
pub fn no_views() -> Layers
    ensures { result ≡ no_views }
{
    Layers {
        count: 0,
        first: no_view(),
        second: no_view(),
    }
}

// One layer more.
fn add_layer(layers: Layers, view: View) -> Layers
    ensures { result ≡ add_layer layers view }
{
    if layers.count == 0 {
        return Layers {
            count: 1,
            first: view,
            ..layers
        };
    }
    if layers.count == 1 {
        return Layers {
            count: 2,
            second: view,
            ..layers
        };
    }
    Layers { count: 3, ..layers }
}

// One entry more. Of one that is no layer nothing is kept.
pub fn next_view(layers: Layers, view: View) -> Layers
    ensures { result ≡ next_view layers view }
{
    let entry = view.entry;
    let record = entry.record;
    if descriptors::is_layer(record) {
        return add_layer(layers, view);
    }
    layers
}
