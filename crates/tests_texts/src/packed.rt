mod cut;
mod diamond;
mod examples;
mod judged;
mod written;
