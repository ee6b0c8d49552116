mod files;
mod largest;
mod mapping;
mod reading;
mod refusals;
