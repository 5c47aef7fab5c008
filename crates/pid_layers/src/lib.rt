// The layer of each PID, from the PIDs of all layers of a loop by their index, implied layers and those outside a target's closure too: a table of 8,192 bytes,
// in which 255 stands for no layer.
#![tactic(auto)]

ghost use Rattle.std.specs.Prelude.{◌≡◌, cond, ◌<◌, length, set};
ghost use Rattle.sets.specs.Sets.{has};
ghost use Rattle.pid_layers.specs.PidLayers.{pids as pidsOf, layers_by_pid};

// The PIDs that there are: 13 bits.
pub const PIDS: usize = 8192;

// One layer more, if there is one of this index.
fn put_layer(present: u64, index: usize, pid: u16, table: &mut [u8; 8192])
    requires { (length table.old ≡ pidsOf) × (index < 64) }
    ensures { table.new ≡ cond (has present index) (set table.old pid index) table.old }
{
    if !sets::member(present, index) {
        return;
    }
    let place = usize::from(pid);
    if PIDS <= place {
        return;
    }
    table[place] = index as u8;
}

// THE TABLE.
pub fn layers_by_pid(present: u64, pids: &[u16; 64]) -> [u8; 8192]
    ensures { result ≡ layers_by_pid present pids.now }
{
    let mut table = [255u8; 8192];
    for (index, pid) in pids.iter().enumerate() {
        put_layer(present, index, *pid, &mut table);
    }
    table
}
