mod files;
mod layouts;
mod rows;
mod strings;
mod texts;
