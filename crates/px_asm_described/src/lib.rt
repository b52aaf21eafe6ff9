//! What an assembly says where it describes a program, and which programs can be written as assemblies. It has definitions alone.
#![tactic(auto)]
