mod audits;
mod batches;
mod bodies;
mod history;
mod spoiled;
mod stores;
mod tables;
mod trees;
