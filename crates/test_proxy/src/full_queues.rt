//! What waits for a connection is filled, at the desk of one switch, and what comes after.

use crate::sessions::expect_rows;
use std::test::Fail;

/// What is filled, at which message, and what comes after. Bob is up, too, where it is `opened`.
const TABLE: &str = "\
# A switch is asked what it is when it connects, and prepared when it has told that, once. Packets go to their writer.
switch is untold
switch goes up
switch gets ask_nothing
switch gets ask_features
switch is untold
alice is unknown
switch goes features
switch is told
alice is down
nobody is missing
switch gets ask_for_whole_packets
switch gets clear_table
switch gets ask_barrier
switch goes features
switch finds nothing
alice goes up
alice is up
bob is down
bob goes up
switch goes web_packet
alice gets greeting
alice gets web_packet
alice finds nothing
bob gets greeting
bob finds nothing
nobody finds ended
# The 65th of the longest replies finds no room; those before it come in their order. She is greeted once she has gone and comes again.
switch goes up
switch goes features
alice goes up
alice goes 65 0102ffff#
alice gets greeting
alice gets 64 0103ffff#
alice finds choked
alice goes down
alice finds ended
alice goes up
alice gets greeting
alice finds nothing
# Flow-mods fill the lane: 51 with all of their 256 messages, and the 52nd with 52 of them, since one was taken.
opened
bob goes up
bob passes 1 message
switch finds nothing
alice goes 51 add_at_10
switch gets first_piece
alice goes add_at_10
switch passes 13106 messages
switch gets last_piece
switch finds choked
alice goes add_at_10
bob goes barrier
switch goes echo
switch goes up
switch finds choked
alice goes tables
alice gets tables_of_256
switch goes web_packet
alice gets web_packet
switch goes down
switch finds ended
alice finds ended
alice ends barrier
# Packet-outs leave room for two barriers, and these fill the lane to its last byte.
opened
bob goes up
bob passes 1 message
alice goes 16 long_packet_out
bob goes 2 barrier
switch passes 18 messages
switch finds nothing
# The third barrier finds no room.
opened
bob goes up
bob passes 1 message
alice goes 16 long_packet_out
bob goes 3 barrier
switch passes 18 messages
switch finds choked
bob goes down
alice goes down
switch finds choked
switch goes down
switch finds ended
# A packet-out that finds no room has used its buffer.
opened
bob goes up
bob passes 1 message
switch goes kept_web_packet
alice gets web_packet_0
alice goes 16 long_packet_out
alice goes use_0
switch passes 16 messages
switch finds choked
alice finds nothing
alice goes use_0
alice gets not_held_0
# Packets whose numbers are kept fill what waits for alice. Those that find no room are kept for her all the same,
# and forgotten when she goes; what she has booked stays.
opened
bob goes up
bob passes 1 message
alice goes add_at_10
switch passes 256 messages
switch goes 28728 kept_web_packet
alice gets web_packet_0
switch goes kept_web_packet
switch goes kept_web_packet
alice passes 28727 messages
alice gets web_packet_28728
alice finds choked
switch goes kept_web_packet
switch goes web_packet
alice goes echo
alice finds choked
switch goes shell_packet
bob gets shell_packet
bob goes echo
bob gets echoed
alice goes use_28730
switch gets used_28730
switch goes kept_web_packet
alice goes down
alice finds ended
alice closes barrier
alice goes up
alice gets greeting
alice finds nothing
alice goes use_28731
alice gets not_held_28731
switch goes kept_web_packet
alice gets web_packet_28732
alice goes checked_add
alice gets overlapped
switch finds nothing
# Whole packets leave room for eight replies, and these fill what waits for alice to its last byte.
opened
bob goes up
bob passes 1 message
switch goes 64 long_web_packet
alice goes 8 echo
alice passes 72 messages
alice finds nothing
# The ninth reply finds no room. An up empties what is choked, and her quota is as used as before.
opened
bob goes up
bob passes 1 message
alice goes add_at_10
alice goes add_at_11
alice goes add_at_12
alice goes add_at_13
switch passes 1024 messages
alice goes add_at_14
alice gets past_quota
switch goes 64 long_web_packet
alice goes 9 echo
alice goes up
alice gets greeting
alice finds nothing
switch goes 64 long_web_packet
alice goes 9 echo
alice passes 72 messages
alice finds choked
alice goes up
alice gets greeting
alice goes add_at_14
alice gets past_quota
switch finds nothing
# The 65th reply to a question for flows finds no room; bob is answered, and has none of these flows.
opened
bob goes up
bob passes 1 message
alice asks 65 times
bob asks 1 time
bob gets no_flows
alice passes 64 messages
alice finds choked
alice asks 1 time
alice finds choked
alice goes down
alice goes up
alice gets greeting
alice finds nothing
alice asks 1 time
alice passes 1 message
alice finds nothing
# Each up greets anew, once, and what waited before it is gone.
opened
bob goes up
bob passes 1 message
switch goes web_packet
switch goes shell_packet
alice goes up
alice goes up
alice gets greeting
alice finds nothing
switch goes web_packet
alice gets web_packet
bob gets shell_packet
bob finds nothing
# A slot that no slice has.
opened
bob goes up
bob passes 1 message
nobody closes up
nobody closes echo
nobody closes down
nobody finds ended
switch finds nothing
alice finds nothing
bob finds nothing
# Before the switch has connected, and before it has told what it is.
alice closes up
alice closes down
switch closes echo
switch closes down
switch finds early
alice finds early
nobody finds ended
switch goes up
switch passes 2 messages
switch finds nothing
alice closes up
alice closes barrier
alice goes down
alice finds early
nobody closes up
nobody finds ended
# Nothing comes after the end of the switch but what waited for the slices.
opened
bob goes up
bob passes 1 message
alice goes barrier
switch goes web_packet
switch goes down
switch finds ended
alice gets web_packet
alice finds ended
bob finds ended
nobody finds ended
switch ends up
switch ends echo
switch ends down
alice ends up
alice ends barrier
alice ends down
nobody ends up
switch finds ended
alice finds ended
";

#[test]
fn what_is_filled_is_choked_until_its_connection_ends(rt: HostRuntime) -> Result<(), Fail> {
    expect_rows(rt.alloc(), TABLE, 256)?;
    Ok(())
}
