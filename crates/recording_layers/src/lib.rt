// Which PIDs of a recording are layer PIDs (document 02, W-202): those of all layers of the loop, under the 2015 reading, implied layers too and those outside the
// target's closure. Of a loop that this reading accepts no two layers share a PID, so that the table of `pid_layers` tells for each PID its one layer, and a packet's layer
// is that of its PID. Laws alone: specs/Meaning.antt has what is shown.
#![tactic(auto)]
