mod matches;
mod packets;
mod sets;
