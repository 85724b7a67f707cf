mod asserting;
mod files;
mod images;
