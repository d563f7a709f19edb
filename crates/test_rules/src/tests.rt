mod actions;
mod flow_mods;
mod flow_tables;
mod index;
mod stats;
mod tables;
