// Layer sets: read, a layer added, a layer removed, and the answer to a target.
ghost use Rattle.std.specs.Prelude.{◌≡◌};
ghost use Rattle.thoquenry_sets.specs.Calls.{set_reply, read_set, add_set, remove_set, closure_set};
ghost use Rattle.c_answers.specs.Answers.{reply};

#[unsafe(no_mangle)]
pub extern "C" fn thq_set_read(
    reading: u64,
    bytes: &[u8],
    layers: &mut [u16],
    stored: &mut [u64],
) -> u64
    ensures { set_reply result layers.new stored.new ≡ read_set reading bytes.now layers.old stored.old }
{
    thoquenry_sets::thq_set_read(reading, bytes, layers, stored)
}

#[unsafe(no_mangle)]
pub extern "C" fn thq_set_add(layers: &mut [u16], stored: &mut [u64], entry: &[u16]) -> u64
    ensures { set_reply result layers.new stored.new ≡ add_set layers.old stored.old entry.now }
{
    thoquenry_sets::thq_set_add(layers, stored, entry)
}

#[unsafe(no_mangle)]
pub extern "C" fn thq_set_remove(layers: &mut [u16], stored: &mut [u64], index: u64) -> u64
    ensures { set_reply result layers.new stored.new ≡ remove_set layers.old stored.old index }
{
    thoquenry_sets::thq_set_remove(layers, stored, index)
}

#[unsafe(no_mangle)]
pub extern "C" fn thq_set_closure(
    layers: &[u16],
    stored: &[u64],
    target: u64,
    closure: &mut [u64],
) -> u64
    ensures { reply result closure.new ≡ closure_set layers.now stored.now target closure.old }
{
    thoquenry_sets::thq_set_closure(layers, stored, target, closure)
}
