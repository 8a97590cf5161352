mod calls;
mod contention;
mod laws;
mod threads;
