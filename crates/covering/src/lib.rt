// How edges cross the ray from a point, and the triangles that hold a point. There is no code: all stands in specs/.
#![tactic(auto)]
