mod offers;
mod refused;
mod written;
