mod air;
mod asserting;
mod faults;
mod jobs;
mod phrases;
mod words;
