mod calls;
mod rows;
