mod copies;
mod damaged;
mod deliveries;
mod faults;
mod parts;
mod questions;
mod refusals;
mod stops;
