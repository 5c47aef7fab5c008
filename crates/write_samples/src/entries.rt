// Entries of the samples, made from their values.
use descriptors::{ExtensionRecord, HierarchyRecord, Record, no_layers};
use es_loop::Entry;
use vocabulary::{HierarchyChannel, LayerIndex, NuhLayerId, TemporalId};

// A base layer: type 15, index 0, channel 0, all flags 1, and the embedded index 63, which names nothing.
pub fn base(stream_type: u8, pid: u16) -> Entry {
    let hierarchy = HierarchyRecord {
        no_view: true,
        no_temporal: true,
        no_spatial: true,
        no_quality: true,
        hierarchy_type: 15,
        layer_index: LayerIndex(0),
        tref_present_flag: true,
        embedded_layer_index: LayerIndex(63),
        channel: HierarchyChannel(0),
    };
    Entry {
        stream_type,
        pid,
        record: Record::Hierarchy(hierarchy),
        embedded: no_layers(),
    }
}

// A stream that no descriptor describes, with or without the implied mark.
pub fn undescribed(stream_type: u8, pid: u16, record: Record) -> Entry {
    Entry {
        stream_type,
        pid,
        record,
        embedded: no_layers(),
    }
}

// A layer that enhances one other: type 1 in space, 2 in quality, 3 in time, and an MVC view, type 9, in none of these.
pub fn enhancement(
    stream_type: u8,
    pid: u16,
    hierarchy_type: u8,
    index: u8,
    embedded: u8,
    channel: u8,
) -> Entry {
    let hierarchy = HierarchyRecord {
        no_view: true,
        no_temporal: hierarchy_type != 3,
        no_spatial: hierarchy_type != 1,
        no_quality: hierarchy_type != 2,
        hierarchy_type,
        layer_index: LayerIndex(index),
        tref_present_flag: false,
        embedded_layer_index: LayerIndex(embedded),
        channel: HierarchyChannel(channel),
    };
    Entry {
        stream_type,
        pid,
        record: Record::Hierarchy(hierarchy),
        embedded: no_layers(),
    }
}

// A layer with an extension descriptor, and the layers that it rests on.
pub fn extension(
    stream_type: u8,
    pid: u16,
    dimension_bits: u16,
    index: u8,
    temporal_id: u8,
    nuh_layer_id: u8,
    tref_present_flag: bool,
    channel: u8,
    below: &[u8],
) -> Entry {
    let mut embedded = no_layers();
    for (layer, index) in embedded.iter_mut().zip(below) {
        *layer = LayerIndex(*index);
    }
    let record = ExtensionRecord {
        dimension_bits,
        layer_index: LayerIndex(index),
        temporal_id: TemporalId(temporal_id),
        nuh_layer_id: NuhLayerId(nuh_layer_id),
        tref_present_flag,
        num_embedded_layers: below.len().min(63) as u8,
        channel: HierarchyChannel(channel),
    };
    Entry {
        stream_type,
        pid,
        record: Record::Extension(record),
        embedded,
    }
}

// A further view of HEVC: its nuh_layer_id and its channel are its index.
pub fn view(pid: u16, index: u8, below: &[u8]) -> Entry {
    extension(0x28, pid, 1, index, 0, index, false, index, below)
}
