// What makes a layer a base layer, which layers a record names, and where it is sent, pinned. Laws alone.
#![tactic(auto)]
