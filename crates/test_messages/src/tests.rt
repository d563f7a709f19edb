mod actions;
mod flows;
mod frames;
mod messages;
mod numbers;
mod ports;
mod statistics;
